// No code: what holds where Kaiser's window takes Bessel series, of a beta up to 713 and of a window that is accepted.
#![tactic(auto)]
