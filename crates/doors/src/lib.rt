// What is promised of the two doors, `evaluator::evaluate` and `checker::check`, as theorems over any results that their contracts allow:
// every input has one answer; a sheet is accepted exactly when the rules derive a conclusion, with that derivation's certificate;
// an accepted answer stands when the sheet grows, and its conclusion is true; what is past the longest sheet and certificate cannot matter.
// specs/Demands.antt has the statements, in the order of the three demands; proofs/Demanded.antt proves them.
// specs/Wrong.antt has doors that the contracts shut out, each by what it does; proofs/ShutOut.antt and
// proofs/ShutOutChecks.antt refute them, and proofs/WrongDoors.antt has a door for each.
#![tactic(auto)]
