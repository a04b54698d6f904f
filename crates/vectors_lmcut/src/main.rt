// Reads blocks in a text format on standard input, runs what they ask on the library and prints the answers. LM-cut is served.
#![tactic(auto)]

use script::run::run;

fn main(rt: HostRuntime) -> anyhow::Result<()> {
    run::<true>(&rt)
}
