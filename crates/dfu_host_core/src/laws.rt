//! Laws of sessions in C. Each law is the proved contract of a function with an empty body, which needn't be called.

ghost use Rattle.dfu_host_core.specs.Runs.{CoreSessionsRefineHosts, BegunSessionIsInitialHost, CoreSessionIsOneHost, NextIsHostAction};

/// After a call has begun a session in C, any list of calls changes the session as the same results and aborts change a host of dfu_host.
/// Each call gets the record and the buffer that the previous call left, and a payload of the same bytes, at any address in memory. A call
/// is refused only if no result has its number `seen`, and then changes nothing. A record holds only one host. dfu_host_next returns the
/// action of that host. If the action is the end of the session with a report, the host is done with that report.
pub fn core_hosts_are_hosts()
    ensures begins { BegunSessionIsInitialHost }
    ensures refines { CoreSessionsRefineHosts }
    ensures one { CoreSessionIsOneHost }
    ensures tells { NextIsHostAction }
{}
