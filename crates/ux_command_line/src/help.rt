//! What `--help` and `--version` print. Only what the program can do stands here: a command comes
//! in with its line, and a value of an option with its own.

/// What the program can do: for each command what it reads and writes, then its options.
pub const HELP: &str = "\
usage: unitex COMMAND ARGUMENTS

  locate GRAPH TEXT ALPHABET [DIC..]
                               reads a grammar, a text, its letters and
                               dictionaries, writes the index of all hits
    --mode ignore              outputs of the grammar are left out (default)
    --mode merge               outputs stand among the tokens of a hit
    --mode replace             outputs stand in place of the tokens of a hit
    --novar                    with merge or replace, a hit is dropped where an
                               output asks for a variable without a value
    --policy all               every hit is kept (default)
    --policy longest           of hits that begin together the longest is kept,
                               and none that begins inside a kept one
    --policy shortest          the same with the shortest
    --chars                    each letter is a token of its own
  concord GRAPH TEXT ALPHABET [DIC..]
                               reads the same, writes the hits with what stands
                               around them, a line each; has the options of
                               locate too
    --left COLUMNS             how wide the text before a hit is, at most 1000
                               (default 40)
    --right COLUMNS            how wide the text after it is at most (default
                               40)
    --sort KEYS                LC, LR, CL, CR, RL or RC: by the text before it
                               (L), the hit (C), the text after it (R); TO by
                               place (default)
  cascade TEXT ALPHABET STEP..
                               reads a text, its letters and the files of the
                               steps, writes the text with the longest hits of
                               one grammar after the other rewritten
    merge:GRAPH                a step: outputs are put among the tokens of a hit
    replace:GRAPH              a step: outputs stand in place of the tokens
    merge9:GRAPH, replace9:GRAPH
                               the step nine times, 1 to 99 are allowed
    dic:DIC                    a dictionary for all steps
    --trace                    before the text a line for each round up to the
                               first of its step that changes nothing: the
                               step, its round, how many hits were rewritten
  tokenize TEXT ALPHABET       reads a text and its letters, writes its tokens
    --chars                    each letter is a token of its own
  check DIC                    reads a dictionary of forms, writes how many
                               entries it has
    --delas                    the dictionary is one of lemmas with their
                               classes
  compress DIC                 reads a dictionary of forms, writes its image
  dico TEXT ALPHABET [DIC..]   reads a text, its letters and dictionaries,
                               writes their report
    --chars                    each letter is a token of its own
  txt2tfst TEXT ALPHABET [DIC..]
                               reads the same, writes the automaton of each
                               sentence
    --chars                    each letter is a token of its own
  elag TFST RULE..             reads such automata and graphs of rules, writes
                               the automata of what satisfies every rule
  tfind GRAPH TFST ALPHABET    reads a grammar, such automata and letters, writes
                               where the grammar is found: the sentence, and
                               the states before it and after it
  fst2 GRAPH ALPHABET          reads a grammar and its letters, writes the
                               grammar compiled
    --chars                    each letter is a token of its own
  flatten GRAPH ALPHABET       reads the same, writes the main graph compiled,
                               with called graphs in place of their calls
    --depth N                  how deep, at most 100 (default 10); a deeper call
                               takes nothing
  inflect DELAS                reads lemmas with their classes, and the graph of
                               each class, writes their forms
  morpho GRAPH TEXT ALPHABET [DIC..]
                               reads a grammar of what stands inside words, a
                               text, its letters and dictionaries, writes the
                               entries that it gives to the words of the text
  bench N                      searches a text of N words that is made up, at
                               most 200000, writes how many words, tokens and
                               hits there are, and the longest hit's tokens

A mask in a graph takes tokens of a kind, as <WORD>, <NB> or <TOKEN>, or by the
entries that the dictionaries have for them, as <N:p>, <be.V> or <!DIC>.

A dictionary of forms whose name ends in .udi is read as an image, a grammar
whose name ends in .fst2 as a compiled one.

Options and names of files stand in any order, an option as --name value or
--name=value. After -- all words are names of files. --help and --version stand
alone.
";

/// Which program it is.
pub const VERSION: &str = "unitex 0.1.0\n";
