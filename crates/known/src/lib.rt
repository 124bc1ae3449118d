// The known results of the request, as one table checked against the meanings (specs/Known.antt). No functions.
#![tactic(auto)]
