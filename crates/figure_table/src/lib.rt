// The lettered figures of document 01, as a table that is proved of the definitions (specs/Table). There
// is no code here: the program `figures` prints the same rows from the calls.
#![tactic(auto)]
