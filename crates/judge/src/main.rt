// The judging program: reads a model's file from standard input and writes its judgement, or its refusal, to standard output.
// Making the text is `report`'s, which is proved; here it is only read, called and written.
#![tactic(auto)]

use model::Model;

// One byte more than the longest file has is enough to tell that an input is too long.
const INPUT_SIZE: usize = Model::MAX_FILE + 1;

fn main(rt: HostRuntime) {
    streams::answer(
        &rt,
        &mut [0u8; INPUT_SIZE],
        &mut [0u8; report::REPORT_SIZE],
        report::report,
    );
}
