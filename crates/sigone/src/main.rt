// The signatures that the trait of an image's lowest implementation asks for.
#![tactic(auto)]

use call_answer::Call;

fn main(rt: HostRuntime) -> std::io::Result<()> {
    programs::call::run(&rt, Call::Signatures)
}
