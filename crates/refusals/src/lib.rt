// Every call refuses by the request's questions alone, and a refusal changes nothing. Theorems only.
#![tactic(auto)]
