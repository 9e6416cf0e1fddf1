//! What holds of every network, as one fact a law.
ghost use Rattle.ghs_make.specs.Laws.{CountsAreKept, ForestsAreInPieces, LinksAreSimple, NetworksAreConnected, NetworksAreRead};

use ghs_gr::laws::law_one_judgement;

/// A network's text is read without a fault, and what is read has the network's nodes and its links.
pub fn law_made()
    ensures { NetworksAreRead }
{
    law_one_judgement();
}

/// A link's ends are nodes, the smaller first, and no link is there twice.
pub fn law_simple()
    ensures { LinksAreSimple }
{}

/// Any two nodes of a network are joined, unless it is a forest.
pub fn law_connected()
    ensures { NetworksAreConnected }
{}

/// A network whose kind takes a number of links has so many.
pub fn law_counted()
    ensures { CountsAreKept }
{}

/// A forest has as many pieces as it has nodes more than links.
pub fn law_pieces()
    ensures { ForestsAreInPieces }
{}
