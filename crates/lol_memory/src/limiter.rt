//! A count of bytes against a maximum.

ghost use Rattle.std.specs.Prelude.{◌≡◌, ◌≤◌, ◌<◌, ◌-◌, ◌^◌, ◌↔◌, OnOk, OnErr, IsErr, IsTrue};
ghost use Rattle.lol_memory.specs.Limiter.{charged, Passes};

use std::marker::Model;
use thiserror::Error;

/// A charge would have passed the limiter's maximum.
#[derive(Debug, Clone, Copy, PartialEq, Eq, Error)]
#[error("The memory limit has been exceeded.")]
pub struct MemoryLimitExceededError;

/// Counts bytes up to a maximum: the usage never passes it.
#[derive(Debug, Drop)]
pub struct SharedMemoryLimiter {
    current_usage: usize,
    max: usize,
}

impl Model for SharedMemoryLimiter {
    ghost use Rattle.std.specs.Prelude.{◌≤◌, ◌<◌, ◌^◌};
    ghost use Rattle.lol_memory.specs.Limiter.{Limiter, limiter_code};

    ghost Value = { Limiter };

    ghost coded = { limiter_code };

    ghost view = { λ l. record { usage = l.current_usage; maximum = l.max } };

    ghost invariant = { λ l. (l.current_usage ≤ l.max) × (l.max < 2 ^ 64) };
}

impl SharedMemoryLimiter {
    /// A limiter with nothing counted yet.
    pub fn new(max: usize) -> Self
        ensures { result ≡ record { usage = 0; maximum = max } }
    {
        SharedMemoryLimiter {
            current_usage: 0,
            max,
        }
    }

    /// The bytes that are counted.
    pub fn current_usage(&self) -> usize
        ensures value { result ≡ self.now.usage }
        ensures within { result ≤ self.now.maximum }
        ensures word { self.now.maximum < 2 ^ 64 }
    {
        self.current_usage
    }

    /// Counts `byte_count` bytes more. It is refused exactly if the usage would pass the maximum, and then nothing is counted.
    pub fn increase_usage(&mut self, byte_count: usize) -> Result<(), MemoryLimitExceededError>
        ensures counted { OnOk result (self.new ≡ charged self.old byte_count) }
        ensures refused { IsErr result ↔ Passes self.old byte_count }
        ensures unchanged { OnErr result (self.new ≡ self.old) }
    {
        if self.would_pass(byte_count) {
            return Err(MemoryLimitExceededError);
        }
        self.current_usage += byte_count;
        Ok(())
    }

    /// Whether `byte_count` bytes more would pass the maximum, so that counting them is refused.
    pub fn would_pass(&self, byte_count: usize) -> bool
        ensures { IsTrue result ↔ Passes self.now byte_count }
    {
        byte_count > self.max - self.current_usage
    }

    /// How many bytes more may be counted.
    pub fn remaining(&self) -> usize
        ensures { result ≡ self.now.maximum - self.now.usage }
    {
        self.max - self.current_usage
    }

    /// Counts `byte_count` bytes less.
    pub fn decrease_usage(&mut self, byte_count: usize)
        requires { byte_count ≤ self.old.usage }
        ensures { self.new ≡ record self.old { usage = self.old.usage - byte_count } }
    {
        self.current_usage -= byte_count;
    }
}
