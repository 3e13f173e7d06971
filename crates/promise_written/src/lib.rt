// No code: the promises about tickets written back to a card, which promise_calls holds the exports to.
#![tactic(auto)]
