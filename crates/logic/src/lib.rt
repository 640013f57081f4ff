// No code stands here: specs/ has general laws, which speak of nothing of the papers.
#![tactic(auto)]
