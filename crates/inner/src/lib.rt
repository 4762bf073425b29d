// Definitions that only inner promises cite: positions in a text, working rows in cells, a schema in cells. No statement needs them. There is no code here.
#![tactic(auto)]
