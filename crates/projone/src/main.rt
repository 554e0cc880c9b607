// The typed functions of an image's lowest implementation.
#![tactic(auto)]

use call_answer::Call;

fn main(rt: HostRuntime) -> std::io::Result<()> {
    programs::call::run(&rt, Call::Projection)
}
