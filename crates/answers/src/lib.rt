// No code: what the calls answer, as laws. Each ends with an answer for every input and every room lent, and a refusal changes nothing
// that was lent.
#![tactic(auto)]
