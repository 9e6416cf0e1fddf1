//! The constant texts of a chart.

/// The opening tag, up to the picture's height.
pub const OPENING: &[u8] = b"<svg xmlns=\"http://www.w3.org/2000/svg\" viewBox=\"0 0 900 ";

/// What follows the height, up to the same height once more.
pub const SIZE: &[u8] = b"\" width=\"900\" height=\"";

/// The rest of the opening tag.
pub const FONT: &[u8] = b"\" font-family=\"sans-serif\" font-size=\"13\">\n";

/// The colours, by the theme of whoever looks at it.
pub const STYLE: &[u8] =
    b"<style>:root{color-scheme:light dark}.paper{fill:#fff}text{fill:#222}.name{font-weight:bold}.small{fill:#666}.axis{stroke:#888}.grid{stroke:#ddd}.bars{stroke:#1667b7;stroke-width:3.4}@media(prefers-color-scheme:dark){.paper{fill:#16191d}text{fill:#e6e6e6}.small{fill:#a5a5a5}.axis{stroke:#888}.grid{stroke:#383c42}.bars{stroke:#6fb3ff}}</style>\n";

/// What all of it stands on, up to its height.
pub const PAPER: &[u8] = b"<rect class=\"paper\" width=\"900\" height=\"";

/// The rest of that.
pub const PAPER_END: &[u8] = b"\"/>\n";

/// What it says of itself, once above all panels.
pub const LEGEND: &[u8] =
    b"<text class=\"small\" x=\"20\" y=\"24\">A bar is a share of the runs; to its right the least, the median and the greatest value. Beyond the bound counts as the last column.</text>\n";

/// A panel, up to where it begins.
pub const PANEL: &[u8] = b"<g transform=\"translate(0 ";

/// The rest of its tag.
pub const PANEL_END: &[u8] = b")\">\n";

/// A network's name, up to it.
pub const NAME: &[u8] = b"<text class=\"name\" x=\"20\" y=\"16\">";

/// What is said of a network, up to its nodes.
pub const CAPTION: &[u8] = b"<text class=\"small\" x=\"880\" y=\"16\" text-anchor=\"end\">nodes ";

/// The end of a text of its own.
pub const TEXT_END: &[u8] = b"</text>\n";

/// The scale below the strips: parts of the bound, and a line upwards from each.
pub const SCALE: &[u8] =
    b"<path class=\"grid\" d=\"M130 26v148M280 26v148M430 26v148M580 26v148M730 26v148\"/>\n<g class=\"scale\" text-anchor=\"middle\"><text class=\"small\" x=\"130\" y=\"190\">0</text><text class=\"small\" x=\"280\" y=\"190\">1/4</text><text class=\"small\" x=\"430\" y=\"190\">1/2</text><text class=\"small\" x=\"580\" y=\"190\">3/4</text><text class=\"small\" x=\"730\" y=\"190\">bound</text></g>\n";

/// The names of the strips.
pub const SENT: &[u8] = b"sent";

pub const PUT_BACK: &[u8] = b"put back";

pub const CHAIN: &[u8] = b"longest chain";

/// The end of a panel.
pub const GROUP_END: &[u8] = b"</g>\n";

/// A strip, up to where it begins.
pub const STRIP: &[u8] = b"<g transform=\"translate(130 ";

/// The rest of its tag, up to its name.
pub const STRIP_NAME: &[u8] = b")\"><text x=\"-12\" y=\"-3\" text-anchor=\"end\">";

/// What stands between a strip's name and its bars.
pub const AXIS: &[u8] = b"</text><path class=\"axis\" d=\"M0 0h600\"/><path class=\"bars\" d=\"";

/// What stands between its bars and its least value.
pub const VALUES: &[u8] = b"\"/><text x=\"610\" y=\"-3\">";

/// The end of a strip.
pub const STRIP_END: &[u8] = b"</text></g>\n";

/// What a chart ends with.
pub const CHART_TAIL: &[u8] = b"</svg>\n";
