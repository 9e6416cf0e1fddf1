//! Graphs, and with which counts their runs end: what `bench/explore --table` prints, by an explorer of its own.

/// A graph's text, and the lines of its runs where all nodes wake by themselves, and where the first of each component does.
pub struct Row {
    pub name: &'static str,
    pub graph: &'static str,
    pub all: &'static str,
    pub first: &'static str,
}

static ROWS: [Row; 20] = [
    Row {
        name: "a lone node",
        graph: "p sp 1 0",
        all: "e 1 0 connect=0 initiate=0 test=0 accept=0 reject=0 report=0 changeroot=0\nr 0 0 0\nx 2\n",
        first: "e 1 0 connect=0 initiate=0 test=0 accept=0 reject=0 report=0 changeroot=0\nr 0 0 0\nx 2\n",
    },
    Row {
        name: "three lone nodes",
        graph: "p sp 3 0",
        all: "e 1 0 connect=0 initiate=0 test=0 accept=0 reject=0 report=0 changeroot=0\nr 0 0 15\nx 8\n",
        first: "e 1 0 connect=0 initiate=0 test=0 accept=0 reject=0 report=0 changeroot=0\nr 0 0 15\nx 8\n",
    },
    Row {
        name: "two nodes",
        graph: "p sp 2 2\na 1 2 1\na 2 1 1",
        all: "e 1 6 connect=2 initiate=2 test=0 accept=0 reject=0 report=2 changeroot=0\nr 6 6 12\nx 13\n",
        first: "e 1 6 connect=2 initiate=2 test=0 accept=0 reject=0 report=2 changeroot=0\nr 6 6 12\nx 10\n",
    },
    Row {
        name: "two pairs and a node",
        graph: "p sp 5 4\na 1 2 3\na 2 1 3\na 4 5 3\na 5 4 3",
        all: "e 1 12 connect=4 initiate=4 test=0 accept=0 reject=0 report=4 changeroot=0\nr 12 12 54\nx 338\n",
        first: "e 1 12 connect=4 initiate=4 test=0 accept=0 reject=0 report=4 changeroot=0\nr 12 12 54\nx 200\n",
    },
    Row {
        name: "a path of 4",
        graph: "p sp 4 6\na 1 2 1\na 2 1 1\na 2 3 2\na 3 2 2\na 3 4 3\na 4 3 3",
        all: "e 1 16 connect=4 initiate=4 test=2 accept=0 reject=2 report=4 changeroot=0\nr 16 16 46\nx 113\n",
        first: "e 1 16 connect=4 initiate=4 test=2 accept=0 reject=2 report=4 changeroot=0\nr 16 16 46\nx 78\n",
    },
    Row {
        name: "a path of 4, the heavy link inside",
        graph: "p sp 4 6\na 1 2 1\na 2 1 1\na 2 3 3\na 3 2 3\na 3 4 2\na 4 3 2",
        all: "e 1 26 connect=6 initiate=8 test=2 accept=2 reject=0 report=8 changeroot=0\nr 26 26 46\nx 204\n",
        first: "e 1 26 connect=6 initiate=8 test=2 accept=2 reject=0 report=8 changeroot=0\nr 26 26 46\nx 123\n",
    },
    Row {
        name: "a path of 5, equal weights",
        graph: "p sp 5 8\na 1 2 1\na 2 1 1\na 2 3 1\na 3 2 1\na 3 4 1\na 4 3 1\na 4 5 1\na 5 4 1",
        all: "e 1 21 connect=5 initiate=5 test=3 accept=0 reject=3 report=5 changeroot=0\nr 21 21 58\nx 341\n",
        first: "e 1 21 connect=5 initiate=5 test=3 accept=0 reject=3 report=5 changeroot=0\nr 21 21 58\nx 234\n",
    },
    Row {
        name: "a triangle",
        graph: "p sp 3 6\na 1 2 1\na 2 1 1\na 2 3 2\na 3 2 2\na 1 3 3\na 3 1 3",
        all: "e 1 13 connect=3 initiate=3 test=3 accept=0 reject=1 report=3 changeroot=0\nr 13 13 21\nx 50\n",
        first: "e 1 13 connect=3 initiate=3 test=3 accept=0 reject=1 report=3 changeroot=0\nr 13 13 21\nx 40\n",
    },
    Row {
        name: "a triangle, equal weights",
        graph: "p sp 3 6\na 1 2 1\na 2 1 1\na 2 3 1\na 3 2 1\na 1 3 1\na 3 1 1",
        all: "e 1 13 connect=3 initiate=3 test=3 accept=0 reject=1 report=3 changeroot=0\nr 13 13 21\nx 50\n",
        first: "e 1 13 connect=3 initiate=3 test=3 accept=0 reject=1 report=3 changeroot=0\nr 13 13 21\nx 40\n",
    },
    Row {
        name: "a ring of 4",
        graph: "p sp 4 8\na 1 2 1\na 2 1 1\na 2 3 2\na 3 2 2\na 3 4 3\na 4 3 3\na 1 4 4\na 4 1 4",
        all: "e 1 18 connect=4 initiate=4 test=4 accept=0 reject=2 report=4 changeroot=0\nr 18 18 48\nx 152\n",
        first: "e 1 18 connect=4 initiate=4 test=4 accept=0 reject=2 report=4 changeroot=0\nr 18 18 48\nx 123\n",
    },
    Row {
        name: "a ring of 5",
        graph: "p sp 5 10\na 1 2 1\na 2 1 1\na 2 3 2\na 3 2 2\na 3 4 3\na 4 3 3\na 4 5 4\na 5 4 4\na 1 5 5\na 5 1 5",
        all: "e 1 23 connect=5 initiate=5 test=5 accept=0 reject=3 report=5 changeroot=0\nr 23 23 60\nx 458\n",
        first: "e 1 23 connect=5 initiate=5 test=5 accept=0 reject=3 report=5 changeroot=0\nr 23 23 60\nx 374\n",
    },
    Row {
        name: "a star of 4",
        graph: "p sp 4 6\na 1 2 2\na 2 1 2\na 1 3 3\na 3 1 3\na 1 4 4\na 4 1 4",
        all: "e 1 14 connect=4 initiate=4 test=1 accept=0 reject=1 report=4 changeroot=0\ne 2 16 connect=4 initiate=4 test=2 accept=0 reject=2 report=4 changeroot=0\nr 14 16 46\nx 142\n",
        first: "e 1 16 connect=4 initiate=4 test=2 accept=0 reject=2 report=4 changeroot=0\nr 16 16 46\nx 42\n",
    },
    Row {
        name: "a star of 5",
        graph: "p sp 5 8\na 1 2 2\na 2 1 2\na 1 3 3\na 3 1 3\na 1 4 4\na 4 1 4\na 1 5 5\na 5 1 5",
        all: "e 1 17 connect=5 initiate=5 test=1 accept=0 reject=1 report=5 changeroot=0\ne 2 19 connect=5 initiate=5 test=2 accept=0 reject=2 report=5 changeroot=0\ne 3 21 connect=5 initiate=5 test=3 accept=0 reject=3 report=5 changeroot=0\nr 17 21 58\nx 647\n",
        first: "e 1 21 connect=5 initiate=5 test=3 accept=0 reject=3 report=5 changeroot=0\nr 21 21 58\nx 58\n",
    },
    Row {
        name: "parallel links",
        graph: "p sp 3 10\na 1 2 2\na 2 1 2\na 1 2 5\na 2 1 5\na 2 3 1\na 3 2 1\na 2 3 4\na 3 2 4\na 1 3 3\na 3 1 3",
        all: "e 1 17 connect=3 initiate=3 test=5 accept=0 reject=3 report=3 changeroot=0\ne 2 17 connect=3 initiate=3 test=6 accept=0 reject=2 report=3 changeroot=0\ne 3 17 connect=3 initiate=3 test=7 accept=0 reject=1 report=3 changeroot=0\nr 17 17 25\nx 173\n",
        first: "e 1 17 connect=3 initiate=3 test=5 accept=0 reject=3 report=3 changeroot=0\ne 2 17 connect=3 initiate=3 test=6 accept=0 reject=2 report=3 changeroot=0\ne 3 17 connect=3 initiate=3 test=7 accept=0 reject=1 report=3 changeroot=0\nr 17 17 25\nx 161\n",
    },
    Row {
        name: "parallel links in a ring",
        graph: "p sp 4 12\na 1 2 1\na 2 1 1\na 1 2 1\na 2 1 1\na 2 3 2\na 3 2 2\na 3 4 2\na 4 3 2\na 3 4 7\na 4 3 7\na 1 4 3\na 4 1 3",
        all: "e 1 20 connect=4 initiate=4 test=5 accept=0 reject=3 report=4 changeroot=0\ne 2 20 connect=4 initiate=4 test=6 accept=0 reject=2 report=4 changeroot=0\nr 20 20 50\nx 259\n",
        first: "e 1 20 connect=4 initiate=4 test=5 accept=0 reject=3 report=4 changeroot=0\ne 2 20 connect=4 initiate=4 test=6 accept=0 reject=2 report=4 changeroot=0\nr 20 20 50\nx 230\n",
    },
    Row {
        name: "a path and a triangle",
        graph: "p sp 5 8\na 1 2 1\na 2 1 1\na 3 4 1\na 4 3 1\na 4 5 2\na 5 4 2\na 3 5 3\na 5 3 3",
        all: "e 1 19 connect=5 initiate=5 test=3 accept=0 reject=1 report=5 changeroot=0\nr 19 19 58\nx 650\n",
        first: "e 1 19 connect=5 initiate=5 test=3 accept=0 reject=1 report=5 changeroot=0\nr 19 19 58\nx 400\n",
    },
    Row {
        name: "a complete graph of 4, equal weights",
        graph: "p sp 4 12\na 1 2 1\na 2 1 1\na 1 3 1\na 3 1 1\na 1 4 1\na 4 1 1\na 2 3 1\na 3 2 1\na 2 4 1\na 4 2 1\na 3 4 1\na 4 3 1",
        all: "e 1 20 connect=4 initiate=4 test=5 accept=0 reject=3 report=4 changeroot=0\ne 2 20 connect=4 initiate=4 test=6 accept=0 reject=2 report=4 changeroot=0\ne 3 20 connect=4 initiate=4 test=7 accept=0 reject=1 report=4 changeroot=0\ne 4 22 connect=4 initiate=4 test=6 accept=0 reject=4 report=4 changeroot=0\ne 5 22 connect=4 initiate=4 test=7 accept=0 reject=3 report=4 changeroot=0\ne 6 22 connect=4 initiate=4 test=8 accept=0 reject=2 report=4 changeroot=0\nr 20 22 52\nx 834\n",
        first: "e 1 20 connect=4 initiate=4 test=5 accept=0 reject=3 report=4 changeroot=0\ne 2 20 connect=4 initiate=4 test=6 accept=0 reject=2 report=4 changeroot=0\ne 3 20 connect=4 initiate=4 test=7 accept=0 reject=1 report=4 changeroot=0\ne 4 22 connect=4 initiate=4 test=6 accept=0 reject=4 report=4 changeroot=0\ne 5 22 connect=4 initiate=4 test=7 accept=0 reject=3 report=4 changeroot=0\ne 6 22 connect=4 initiate=4 test=8 accept=0 reject=2 report=4 changeroot=0\nr 20 22 52\nx 716\n",
    },
    Row {
        name: "a complete graph of 4",
        graph: "p sp 4 12\na 1 2 1\na 2 1 1\na 1 3 8\na 3 1 8\na 1 4 4\na 4 1 4\na 2 3 11\na 3 2 11\na 2 4 7\na 4 2 7\na 3 4 3\na 4 3 3",
        all: "e 1 36 connect=6 initiate=8 test=9 accept=4 reject=1 report=8 changeroot=0\ne 2 36 connect=6 initiate=8 test=10 accept=4 reject=0 report=8 changeroot=0\nr 36 36 52\nx 427\n",
        first: "e 1 36 connect=6 initiate=8 test=9 accept=4 reject=1 report=8 changeroot=0\ne 2 36 connect=6 initiate=8 test=10 accept=4 reject=0 report=8 changeroot=0\nr 36 36 52\nx 352\n",
    },
    Row {
        name: "5 nodes and 7 links",
        graph: "p sp 5 14\na 1 2 2\na 2 1 2\na 1 3 1\na 3 1 1\na 2 4 3\na 4 2 3\na 1 5 1\na 5 1 1\na 4 5 1\na 5 4 1\na 1 4 1\na 4 1 1\na 3 4 1\na 4 3 1",
        all: "e 1 23 connect=5 initiate=5 test=5 accept=0 reject=3 report=5 changeroot=0\ne 2 23 connect=5 initiate=5 test=6 accept=0 reject=2 report=5 changeroot=0\ne 3 23 connect=5 initiate=5 test=7 accept=0 reject=1 report=5 changeroot=0\ne 4 25 connect=5 initiate=5 test=6 accept=0 reject=4 report=5 changeroot=0\ne 5 25 connect=5 initiate=5 test=7 accept=0 reject=3 report=5 changeroot=0\ne 6 25 connect=5 initiate=5 test=8 accept=0 reject=2 report=5 changeroot=0\ne 7 27 connect=5 initiate=5 test=7 accept=0 reject=5 report=5 changeroot=0\ne 8 27 connect=5 initiate=5 test=8 accept=0 reject=4 report=5 changeroot=0\ne 9 27 connect=5 initiate=5 test=9 accept=0 reject=3 report=5 changeroot=0\nr 23 27 64\nx 4238\n",
        first: "e 1 23 connect=5 initiate=5 test=7 accept=0 reject=1 report=5 changeroot=0\ne 2 25 connect=5 initiate=5 test=7 accept=0 reject=3 report=5 changeroot=0\ne 3 25 connect=5 initiate=5 test=8 accept=0 reject=2 report=5 changeroot=0\ne 4 27 connect=5 initiate=5 test=7 accept=0 reject=5 report=5 changeroot=0\ne 5 27 connect=5 initiate=5 test=8 accept=0 reject=4 report=5 changeroot=0\ne 6 27 connect=5 initiate=5 test=9 accept=0 reject=3 report=5 changeroot=0\nr 23 27 64\nx 2089\n",
    },
    Row {
        name: "6 nodes and 8 links",
        graph: "p sp 6 16\na 1 2 2\na 2 1 2\na 1 3 4\na 3 1 4\na 1 4 4\na 4 1 4\na 3 5 3\na 5 3 3\na 2 6 4\na 6 2 4\na 3 6 3\na 6 3 3\na 2 5 1\na 5 2 1\na 1 5 1\na 5 1 1",
        all: "e 1 28 connect=6 initiate=6 test=6 accept=0 reject=4 report=6 changeroot=0\ne 2 28 connect=6 initiate=6 test=7 accept=0 reject=3 report=6 changeroot=0\ne 3 28 connect=6 initiate=6 test=8 accept=0 reject=2 report=6 changeroot=0\ne 4 30 connect=6 initiate=6 test=7 accept=0 reject=5 report=6 changeroot=0\ne 5 30 connect=6 initiate=6 test=8 accept=0 reject=4 report=6 changeroot=0\ne 6 30 connect=6 initiate=6 test=9 accept=0 reject=3 report=6 changeroot=0\ne 7 32 connect=6 initiate=6 test=8 accept=0 reject=6 report=6 changeroot=0\ne 8 32 connect=6 initiate=6 test=9 accept=0 reject=5 report=6 changeroot=0\ne 9 32 connect=6 initiate=6 test=10 accept=0 reject=4 report=6 changeroot=0\nr 28 32 76\nx 20523\n",
        first: "e 1 30 connect=6 initiate=6 test=7 accept=0 reject=5 report=6 changeroot=0\ne 2 30 connect=6 initiate=6 test=8 accept=0 reject=4 report=6 changeroot=0\ne 3 30 connect=6 initiate=6 test=9 accept=0 reject=3 report=6 changeroot=0\ne 4 32 connect=6 initiate=6 test=8 accept=0 reject=6 report=6 changeroot=0\ne 5 32 connect=6 initiate=6 test=9 accept=0 reject=5 report=6 changeroot=0\ne 6 32 connect=6 initiate=6 test=10 accept=0 reject=4 report=6 changeroot=0\nr 30 32 76\nx 9155\n",
    },
];

/// All rows. The proof of each function that names them goes through their texts once more, so only this one does.
pub fn rows() -> &'static [Row] {
    &ROWS
}
