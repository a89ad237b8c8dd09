// The answers of peripherals: the ports that a run is driven with.
ghost use Rattle.std.specs.Prelude.{◌≡◌, ◌<◌, ◌≤◌, IfSome, length};
ghost use Rattle.tc_script.specs.Ports.{AcceptsDeviceAddresses, AnswersWithinDeviceBounds, device_answer, device_answer_at, is_in_device};
ghost use Rattle.tc_script.specs.DrivenRuns.{IsDrivenInput};

use crate::Script;
use crate::scripts::AnswerRange;
use arrayvec::ArrayVec;
use std::marker::Model;
use tcd_plan::{Device, Plan};

/// The peripherals of a plan, and a closure that answers for them: for an address of a peripheral
/// and the number of an event, a word within that peripheral's bounds.
/// A struct can't keep a fact about a closure. So `new` ensures this, and each call that asks
/// requires it.
#[derive(Drop)]
pub struct Ports<F: Fn(u32, u32) -> u32> {
    devices: ArrayVec<Device, 16>,
    answer: F,
}

impl<F: Fn(u32, u32) -> u32> Model for Ports<F> {
    ghost use Rattle.tc_script.specs.Ports.{PortsData};

    ghost Value = { PortsData F };

    ghost view = { λ p. record { devices = p.devices.items; answer = p.answer } };
}

impl<F: Fn(u32, u32) -> u32> Ports<F> {
    /// Returns the ports of a plan: its peripherals, with a closure that answers their loads.
    /// `answer` maps a loaded address and the event's number to the word that the load gives.
    pub fn new(plan: &Plan, answer: F) -> Ports<F>
        requires askable { AcceptsDeviceAddresses (F.pre answer) plan.now.devices }
        requires bounded { AnswersWithinDeviceBounds (F.post answer) plan.now.devices }
        ensures devices { result.devices ≡ plan.now.devices }
        ensures answer { result.answer ≡ answer }
        ensures askable { AcceptsDeviceAddresses (F.pre result.answer) plan.now.devices }
        ensures bounded { AnswersWithinDeviceBounds (F.post result.answer) plan.now.devices }
    {
        let mut devices = ArrayVec::new();
        devices
            .try_extend_from_slice(plan.devices.as_slice())
            .unwrap();
        Ports { devices, answer }
    }

    /// Returns true if the `size` bytes from an address on are wholly inside one peripheral range.
    pub(crate) fn holds(&self, addr: u32, size: u8) -> bool
        ensures { result ≡ is_in_device addr size self.now.devices }
    {
        self.devices
            .iter()
            .any(|device| device.range.holds(addr, u32::from(size)))
    }

    /// Returns what the closure answers for an address of a peripheral at the event with number
    /// `t`.
    pub(crate) fn ask(&self, addr: u32, t: u32) -> u32
        requires { F.pre self.now.answer addr t }
        ensures { F.post self.now.answer addr t result }
    {
        (self.answer)(addr, t)
    }
}

/// Returns the input of event `t`: the closure's answer if `load`, the address and size of the next
/// load, is wholly inside one peripheral range, else 0.
pub(crate) fn port_input<F: Fn(u32, u32) -> u32>(
    ports: &Ports<F>,
    load: Option<(u32, u8)>,
    t: u32,
) -> u32
    requires some { IfSome load (λ l. 1 ≤ l.1) }
    requires askable { AcceptsDeviceAddresses (F.pre ports.now.answer) ports.now.devices }
    ensures { IsDrivenInput ports.now.devices (F.post ports.now.answer) t load result }
{
    let Some((addr, size)) = load else {
        return 0;
    };
    if ports.holds(addr, size) {
        ports.ask(addr, t)
    } else {
        0
    }
}

/// Returns what a peripheral's port answers at event `at`, numbered from 0: the words from `lo` to
/// `hi`, in turn and over again.
pub(crate) fn device_answer(bounds: AnswerRange, at: u32) -> u32
    requires { bounds.lo ≤ bounds.hi }
    ensures { result ≡ device_answer bounds at }
{
    let count = u64::from(bounds.hi - bounds.lo) + 1;
    (u64::from(bounds.lo) + u64::from(at) % count) as u32
}

/// Returns what the peripheral at address `addr` answers at event `t` by the script's bounds, or 0
/// if no peripheral is there.
pub(crate) fn device_answer_at(devices: &[Device], script: &Script, addr: u32, t: u32) -> u32
    requires { length script.now.bounds ≡ length devices.now }
    ensures { result ≡ device_answer_at devices.now script.now.bounds addr t }
{
    for (i, device) in devices.iter().enumerate() {
        if device.range.holds(addr, 1) {
            return script.answer(i, t);
        }
    }
    0
}
