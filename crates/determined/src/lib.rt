// Determinacy: any two results that a public function's contract allows are equal, answer and buffers.
// specs/Once.antt says what that is for any contract. The files beside it have a line for each public function, over what a caller learns of its own contract, a file for each crate.
// Where a contract leaves something open its line says what is fixed: `certificates::write` but for the listing, `expressions::evaluate` and `deductions::deduce` up to what a result stands for (specs/Alike.antt).
// Proofs stand under the same names.
#![tactic(auto)]
