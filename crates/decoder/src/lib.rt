// From a call sheet back to its entries, and the theorem that call sheets distinguish their sheets. No code.
#![tactic(auto)]
