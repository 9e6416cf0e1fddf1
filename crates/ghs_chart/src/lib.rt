//! Pictures of runs' figures: a chart as SVG, with a panel for each network, and in it bars for what its runs have sent,
//! what was put back and their longest chains, by the bound on messages.
//!
//! Proved: `put_chart_head` and `put_panel` append exactly the bytes that `specs/Chart.antt` defines (`chart_head`,
//! `panel_text`). Behind the panels the caller puts `CHART_TAIL`. That a browser draws a chart as meant is checked by
//! eye.
//!
//! A panel is of 1 to 2^32 runs. `ghs sweep --print chart` prints it (`ghs_cli`).
#![tactic(auto)]

mod around;
pub mod chart;
pub mod panel;
mod strip;
pub mod texts;
