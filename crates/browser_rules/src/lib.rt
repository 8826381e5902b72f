//! What must be believed of a run of the program, in reading order (UEFI 2.8, sections 33 and 34; each chapter names its own).
#![tactic(auto)]
