//! Moves that a device makes by itself, between two events (USB DFU 1.1, appendix A).

use crate::Drift;
use crate::Reading::SelfReset;
use crate::StandardState::{
    AppDetach, AppIdle, DfuIdle, DownloadBusy, DownloadSync, Error, Fresh, Manifest, ManifestSync,
    ManifestWaitReset,
};
use crate::row::RuleSource::{A, Habit};
use crate::row::When::{Always, By, NotTolerant, Tolerant, WillDetach};

/// Moves that a device makes by itself: its enumeration ends, a timer expires, the device detaches, or writing a block or the image
/// succeeds or fails. One move reaches every state that two moves in sequence reach.
#[rattlefmt::skip]
pub static DRIFTS: [Drift; 12] = [
    drift!(Fresh, Always, DfuIdle, A),
    drift!(AppDetach, Always, AppIdle, A),
    drift!(AppDetach, WillDetach, DfuIdle, A),
    drift!(DownloadSync, Always, Error, A),
    drift!(DownloadBusy, Always, DownloadSync, A),
    drift!(DownloadBusy, Always, Error, A),
    drift!(ManifestSync, Always, Error, A),
    drift!(Manifest, Tolerant, ManifestSync, A),
    drift!(Manifest, NotTolerant, ManifestWaitReset, A),
    drift!(Manifest, Always, Error, A),
    drift!(Manifest, By(SelfReset), AppIdle, Habit),
    drift!(ManifestWaitReset, By(SelfReset), AppIdle, Habit),
];
