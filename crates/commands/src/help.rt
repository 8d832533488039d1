// How the program is used.

pub const USAGE: &str = "usage: hethumsi [JOB] [OPTIONS] [FILE]\n\
jobs:\n  list   lists the program in FILE (station.il) as it was read; ranges on standard input\n  help   prints this\n\
options:\n  --statements N         places for statements: 64, at most 1024\n  --variables N          places for variables: 15, at most 64\n  --sweeps N             sweeps of the analysis: 100, at most 65535\n  --kind interval|list   number sets of the analysis: interval\n  --explain              says the same in sentences\n";
