// The claims about lists of calls of both ends: what holds after every list, and along every honest one, and that whole honest
// sessions exist. No code: the calls are those of `card` and `carrier`, by the definitions that their contracts cite.
#![tactic(auto)]
