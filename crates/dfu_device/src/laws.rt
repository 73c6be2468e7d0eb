//! Laws of the rows of a device. Each law is the contract of a function with an empty body; the contract is proved, and a call has no
//! effect.

ghost use Rattle.dfu_device.specs.PlanOutcomes.{PlansHaveOutcomes, RowByReading, SetupsHaveOutcomes, NotServedIsStalled, TimesHaveOutcomes, StatusReadBack};
ghost use Rattle.dfu_device.specs.AcceptedHistory.{SetupAcceptsBody, TimeAcceptsNothing, RowAcceptsBody, StepAcceptsBody, HistoryAcceptsBodies, StartAcceptsBodies, AcceptedBytesUnique};
ghost use Rattle.dfu_device.specs.SentHistory.{RowSendsPiece, StepSendsPiece, HistorySendsPieces, SentBytesUnique};
ghost use Rattle.dfu_device.specs.Uploaded.{UploadIsImage, UploadsAreImages};
ghost use Rattle.dfu_device.specs.ReportLaws.{StatusReportMatches, StateReportMatches};
ghost use Rattle.dfu_device.specs.StoreUse.{RowsUseStore, ErrorRowsKeepStore};
ghost use Rattle.dfu_device.specs.Errors.{MediumErrorsHaveCause};

/// Each row of the table leads to an outcome of its plan; the medium's writes determine which one. A setup packet determines its row. A
/// setup packet without a row in the table is stalled and changes nothing. A GETSTATUS answer of at least six bytes decodes to the status.
pub fn rows_come_to_outcomes()
    ensures plan { PlansHaveOutcomes }
    ensures row_follows_reading { RowByReading }
    ensures asked { SetupsHaveOutcomes }
    ensures not_served_is_stalled { NotServedIsStalled }
    ensures time { TimesHaveOutcomes }
    ensures status { StatusReadBack }
{}

/// Received bytes: the device accepts exactly the bodies that it acknowledges, and a history of rows determines the bytes received.
pub fn rows_take()
    ensures asked { SetupAcceptsBody }
    ensures time { TimeAcceptsNothing }
    ensures row { RowAcceptsBody }
    ensures step { StepAcceptsBody }
    ensures history { HistoryAcceptsBodies }
    ensures from_start { StartAcceptsBodies }
    ensures one { AcceptedBytesUnique }
{}

/// Sent bytes: the device sends exactly its answers to UPLOAD, and a history of rows determines the bytes sent. At the end of an upload
/// they are the active image.
pub fn rows_send()
    ensures row { RowSendsPiece }
    ensures step { StepSendsPiece }
    ensures history { HistorySendsPieces }
    ensures ends { UploadIsImage }
    ensures gives { UploadsAreImages }
    ensures one { SentBytesUnique }
{}

/// An answer to GETSTATUS reports the status of the device after the row. An answer to GETSTATE reports its state, and the row keeps the
/// stage.
pub fn rows_tell()
    ensures status { StatusReportMatches }
    ensures state { StateReportMatches }
{}

/// In a row the device doesn't call the slot store, or it writes the last block after the bytes written before, or it commits the received
/// bytes. Only a commit changes the image, and in dfuERROR the device never commits. A row enters errWRITE, errPROG or errVERIFY only if
/// the medium failed during the row.
pub fn rows_keep()
    ensures image { RowsUseStore }
    ensures error { ErrorRowsKeepStore }
    ensures errors { MediumErrorsHaveCause }
{}
