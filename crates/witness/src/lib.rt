// Worked examples: a sheet with a clear name of each kind, names at the edges, whole call sheets. Theorems, no code.
#![tactic(auto)]
