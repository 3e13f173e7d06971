// No code: the promises about tickets on a card, which promise_calls holds the exports to.
#![tactic(auto)]
