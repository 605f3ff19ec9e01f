// What the programs share: the words and the file that they are given, the lines that they print, and whether a room kept what stood in it.
#![tactic(auto)]

pub mod input;
pub mod lines;
pub mod rooms;
pub mod words;
