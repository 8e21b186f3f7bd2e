// The three calls for a C host (include/fringemole.h): one end of one forwarding session, over memory that the host lends.
#![tactic(auto)]

mod gives;
mod opens;
mod receives;
