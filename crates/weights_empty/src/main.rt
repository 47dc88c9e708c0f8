// The program `weights` once more, since the gate runs a program on one input: this one is run on none.
#![tactic(auto)]

// Reads lines of shared count, joined count and depth, and writes curvature, alpha and weight for each.
fn main(rt: HostRuntime) {
    weights_run::run(&mut rt.stdin(), &mut rt.stdout());
}
