// The program: SCOPE 6. See the crates `stream` and `stream_io`.
#![tactic(auto)]

fn main(rt: HostRuntime) {
    stream_io::run(&rt);
}
