// What the library is held to as a whole. There is no code here. specs/Readings.antt has the scope's marked readings in one table, and proofs/Marked.antt the one statement about
// them; specs/Determined.antt says once what a second answer is, and each proofs/*Answers.antt that no public function of a crate has one.

#![tactic(auto)]
