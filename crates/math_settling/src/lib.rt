// No code: up to which arguments the Bessel series settles. A designer that knows it needn't ask each series.
#![tactic(auto)]
