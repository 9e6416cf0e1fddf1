//! What holds of every run. The law is a function that does nothing.
ghost use Rattle.ghs_orders.specs.LifoLaws.{LatestIsOne};

/// Of the ports whose first message would be consumed there is one at most to which a message was sent last: so which Take
/// is next is determined by the events so far.
pub fn law_latest_is_one()
    ensures { LatestIsOne }
{}
