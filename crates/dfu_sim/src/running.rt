//! Runs a list of events, up to the first that is refused.

ghost use Rattle.std.specs.Prelude.{◌≡◌, ◌++◌, ◌<◌, vec_len, vec_capacity};
ghost use Rattle.dfu_sim.specs.Session.{report_list};
ghost use Rattle.dfu_sim.specs.Running.{happenings, RunAnswers};
ghost use Rattle.dfu_sim.specs.FollowingRun.{AllMachinesFollowRun};
ghost use Rattle.dfu_sim.specs.Headline.{RunPreservesHeadline};
ghost use Rattle.dfu_sim.specs.CleanInstall.{RunsCleanly};

use crate::event::Event;
use crate::fault::LinkFault;
use crate::world::World;
use dfu_host::Report;
use dfu_slots::Faulty;
use std::alloc::Global;

/// Fault that stopped a run at the event with index `at` (counted from 0): the event was refused, or there was no memory for its report.
/// `reports` holds the reports of the events before it.
#[derive(Drop)]
pub struct Stop {
    pub fault: LinkFault,
    pub at: usize,
    pub reports: Vec<Report>,
}

/// Appends `report`, if there is one.
fn note(reports: &mut Vec<Report>, report: Option<Report>)
    requires { vec_len reports.old < vec_capacity reports.old }
    ensures { reports.new.items ≡ reports.old.items ++ report_list report }
{
    if let Some(report) = report {
        reports.push_reserved(report);
    }
}

/// Applies `events` in order, up to the first that is refused, and returns their reports. Memory for a report is reserved before each
/// event.
///
/// By `headline`, if the headline holds before the first event, it holds after each: the active image is the factory image or the payload
/// of a file offered so far. If an event reports Installed or Verified, the device is in appIDLE with the payload of the last session.
///
/// # Errors
///
/// `Stop` with the fault of an event that is refused, or with `NoMemory` if there is no memory for the report of an event. The link is then
/// in its state before that event.
pub fn run<'f, M: Faulty>(
    world: &mut World<'f, M>,
    alloc: Global,
    events: &[Event<'f, '_>],
) -> Result<Vec<Report>, Stop>
    ensures runs { RunAnswers world.old (happenings events.now) world.new result }
    ensures legal { AllMachinesFollowRun world.old (happenings events.now) world.new result }
    ensures headline { RunPreservesHeadline world.old events.now world.new result }
    ensures clean { RunsCleanly world.old.bench (happenings events.now) world.new.bench result }
{
    let mut reports = Vec::new(alloc);
    for i in 0..events.len() {
        if reports.reserve(1).is_err() {
            return Err(Stop {
                fault: LinkFault::NoMemory,
                at: i,
                reports,
            });
        }
        match world.step(events[i]) {
            Ok(report) => note(&mut reports, report),
            Err(fault) => {
                return Err(Stop {
                    fault,
                    at: i,
                    reports,
                });
            }
        }
    }
    Ok(reports)
}
