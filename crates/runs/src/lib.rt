// Lists of calls have no code: the theorems are about the definitions that the contracts of `election` and `image_snapshot` equate to.
#![tactic(auto)]
