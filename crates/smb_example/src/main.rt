//! How a share is embedded, in three parts: `serving`, a share that is served to its peers, `talking`, a share and clients that talk
//! to it, and `over_tcp`, one that is served over TCP. The first two print what their clients were answered.
#![tactic(auto)]

mod over_tcp;
mod serving;
mod share;
mod talking;

fn main(rt: HostRuntime) -> anyhow::Result<()> {
    println!(rt; "served to peers")?;
    serving::run(&rt)?;
    println!(rt; "two clients")?;
    talking::run(&rt)?;
    println!(rt; "over TCP")?;
    over_tcp::run(&rt, 3)
}
