// All histories of a length have no code of their own: the crate `histories` makes the list, and its promise is these definitions.
#![tactic(auto)]
