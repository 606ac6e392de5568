// Lists of calls have no code of their own: the definitions and theorems speak of what the calls answer and leave.
#![tactic(auto)]
