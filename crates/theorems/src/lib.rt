// What follows from document 01's definitions, with no code in sight: the interpreter does what the rules say and nothing else,
// what it derives is proved by the plain proof that its certificate holds, what is proved is true, a certificate is read back as
// what was written and stays inside its limits, an answer stands when sheet, budget and room grow, and what is past the longest
// sheet and certificate cannot matter.
// specs/Demands.antt has the statements, proofs/Lib.antt the files in reading order.
#![tactic(auto)]
