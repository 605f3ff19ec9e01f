// The sections of the file whose records are tried one by one. No functions.
#![tactic(auto)]

#[derive(Clone, Copy)]
pub enum Section {
    Relations,
    Grants,
    Owners,
    Nodes,
    Parents,
    Prices,
}
