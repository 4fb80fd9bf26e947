// What a sheet and its entries are called with. Definitions and laws, no code.
#![tactic(auto)]
