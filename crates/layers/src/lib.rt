// Demand 3: layers compose. The claim is in specs/, its proof in proofs/; there is nothing to run. It stands above the questions, because it is about
// what they answer. For a user: docs/RULES.md, "Which line decides".
#![tactic(auto)]
