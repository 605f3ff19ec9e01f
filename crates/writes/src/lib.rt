// What a writer of plan files is given, what it writes and when it refuses, as definitions; and the theorems about them. No functions.
#![tactic(auto)]
