// The line program: words from standard input, a line of letter numbers each, by the grammar in grammar.img; the readings on standard output.

#![tactic(auto)]

use answers::run::Run;

fn main(rt: HostRuntime) {
    let mut image = [0u8; 65537];
    let n = moving::load_image(&rt, &mut image);
    let mut index = [0u8; 186112];
    let prepared = prepare::for_run(&image[..n], &mut index);
    let run = Run {
        image: &image[..n],
        index: &index,
        prepared,
    };
    let mut chunk = [0u8; 65536];
    let mut line = [0u8; 256];
    let mut out = [0u8; 65536];
    let mut input = rt.stdin();
    steps::answer_input(&rt, &mut input, &run, &mut chunk, &mut line, &mut out);
}
