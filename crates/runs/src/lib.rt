// Every honest run finishes with what FIPS 204 gives. Theorems only.
#![tactic(auto)]
