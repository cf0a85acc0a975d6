// The examples that paper 01 marks P, proved. There is no code here: they stand in specs/, and the proof of the table in proofs/.
#![tactic(auto)]
