// Each setter at its edges, and what the INIT reply has of it.
use crate::asserts::expect_same;
use bitflags::Flags;
use fuse_config::KernelConfig;
use fuse_wire::{Duration, InitFlags, Version};
use std::process::Abort;

/// What is set, and what the setter answers. A span is told in nanoseconds, and flags by their bits.
pub enum Step {
    StackDepth(u32, Result<u32, u32>),
    MaxWrite(u32, Result<u32, u32>),
    MaxReadahead(u32, Result<u32, u32>),
    MaxBackground(u16, Result<u16, u16>),
    Threshold(u16, Result<u16, u16>),
    Granularity(u64, Result<u64, u64>),
    Capabilities(u64, Result<(), u64>),
}

/// One after the other, where a kernel offers 1 << 3 and 1 << 49 and reads 131072 bytes ahead. Of a threshold that was
/// not set the one before is three quarters of the background, rounded down.
const STEPS: &[Step] = &[
    Step::StackDepth(2, Ok(0)),
    Step::StackDepth(3, Err(2)),
    Step::StackDepth(0, Ok(2)),
    Step::MaxWrite(1, Ok(16777216)),
    Step::MaxWrite(0, Err(1)),
    Step::MaxWrite(16777216, Ok(1)),
    Step::MaxWrite(16777217, Err(16777216)),
    Step::MaxReadahead(1, Ok(131072)),
    Step::MaxReadahead(0, Err(1)),
    Step::MaxReadahead(131072, Ok(1)),
    Step::MaxReadahead(131073, Err(131072)),
    Step::MaxBackground(3, Ok(16)),
    Step::MaxBackground(0, Err(1)),
    Step::Threshold(9, Ok(2)),
    Step::Threshold(0, Err(1)),
    Step::Threshold(1, Ok(3)),
    Step::MaxBackground(u16::MAX, Ok(3)),
    Step::Threshold(u16::MAX, Ok(1)),
    Step::Granularity(10, Ok(1)),
    Step::Granularity(0, Err(1)),
    Step::Granularity(9, Err(1)),
    Step::Granularity(99, Err(10)),
    Step::Granularity(1_000_000_000, Ok(10)),
    Step::Granularity(1_000_000_001, Err(1_000_000_000)),
    Step::Capabilities(1 << 3, Ok(())),
    Step::Capabilities(1 << 3 | 1 << 4 | 1 << 50, Err(1 << 4)),
    Step::Capabilities(1 << 50, Err(0)),
    Step::Capabilities(1 << 49, Ok(())),
    Step::Capabilities(u64::MAX, Err(0x7ff_ffff_fff7)),
];

/// A span of so many nanoseconds.
fn span(nanos: u64) -> Duration {
    Duration::new(nanos / 1_000_000_000, (nanos % 1_000_000_000) as u32)
}

/// Sets the granularity, which is answered so.
fn set_granularity(
    rt: &impl Abort,
    config: &mut KernelConfig,
    nanos: u64,
    answer: &Result<u64, u64>,
) {
    let expected = match answer {
        Ok(before) => Ok(span(*before)),
        Err(nearest) => Err(span(*nearest)),
    };
    expect_same(rt, &config.set_time_granularity(span(nanos)), &expected);
}

/// Asks for flags, which is answered so.
fn add_capabilities(
    rt: &impl Abort,
    config: &mut KernelConfig,
    bits: u64,
    answer: &Result<(), u64>,
) {
    let expected = match answer {
        Ok(()) => Ok(()),
        Err(bits) => Err(InitFlags::from_bits_retain(*bits)),
    };
    let found = config.add_capabilities(InitFlags::from_bits_retain(bits));
    expect_same(rt, &found, &expected);
}

/// Sets what the step says, which is answered so.
fn set(rt: &impl Abort, config: &mut KernelConfig, step: &Step) {
    match step {
        Step::StackDepth(depth, answer) => {
            expect_same(rt, &config.set_max_stack_depth(*depth), answer)
        }
        Step::MaxWrite(bytes, answer) => expect_same(rt, &config.set_max_write(*bytes), answer),
        Step::MaxReadahead(bytes, answer) => {
            expect_same(rt, &config.set_max_readahead(*bytes), answer)
        }
        Step::MaxBackground(requests, answer) => {
            expect_same(rt, &config.set_max_background(*requests), answer)
        }
        Step::Threshold(requests, answer) => {
            expect_same(rt, &config.set_congestion_threshold(*requests), answer)
        }
        Step::Granularity(nanos, answer) => set_granularity(rt, config, *nanos, answer),
        Step::Capabilities(bits, answer) => add_capabilities(rt, config, *bits, answer),
    }
}

/// Takes these steps.
pub fn set_all(rt: &impl Abort, config: &mut KernelConfig, steps: &[Step]) {
    for step in steps {
        set(rt, config, step);
    }
}

/// What a kernel of this version offers that reads so many bytes ahead.
pub fn offered(capabilities: u64, readahead: u32, minor: u32) -> KernelConfig {
    let flags = InitFlags::from_bits_retain(capabilities);
    KernelConfig::new(flags, readahead, Version(7, minor))
}

#[test]
fn each_setter_answers_as_its_step_says(rt: HostRuntime) {
    set_all(&rt, &mut offered(1 << 3 | 1 << 49, 131072, 40), STEPS);
    // of a kernel that reads nothing ahead
    let none = &[Step::MaxReadahead(0, Err(1)), Step::MaxReadahead(1, Err(0))];
    set_all(&rt, &mut offered(0, 0, 40), none);
}
