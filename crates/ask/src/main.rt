// Answers questions about the book of the current folder, line by line. The same program as `stations` over another book: each folder has its data.
#![tactic(auto)]

fn main(rt: HostRuntime) {
    asking::run(&rt);
}
