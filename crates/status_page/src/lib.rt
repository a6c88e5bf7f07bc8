//! The pages that show a running zone: what a request asks for, and the texts that answer it. There
//! is a page for people, JSON for programs, and metrics in Prometheus' text format.
//!
//! proved: what a request asks for (`asked_by`); a list has the next rows behind the given one, of
//! all that the zone told, in rising order, and says whether there are more (`endpoints_after`);
//! the texts of all pages (`metrics`, `home`)
#![tactic(auto)]

mod asked;
mod call_page;
mod counted;
mod endpoint_page;
mod home_counts;
mod home_page;
mod home_rows;
mod html_parts;
mod keeping;
mod lists;
mod metrics_page;
mod overview;
mod query;
mod response;
mod style;
mod text_parts;
mod zone_page;

pub use asked::{Asked, Method, asked_by};
pub use call_page::calls_json;
pub use endpoint_page::endpoints_json;
pub use home_page::home;
pub use lists::{CallList, EndpointList, calls_after, endpoints_after};
pub use metrics_page::metrics;
pub use overview::{About, Overview};
pub use query::{MOST_ROWS, Query, Table};
pub use response::{Content, Response, Status, line};
pub use zone_page::zone_json;
