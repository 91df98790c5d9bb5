//! The texts of the help.

use std::io;

/// What each command does, reads and writes, with the ranges of its words.
pub(crate) const HELP: &str = "\
gevacq: images of a GigE Vision camera from its datagrams, in GenTL buffers

With a camera on the network:

gevacq discover [<address>]
    Looks for cameras on the network: asks at the address, or at all addresses of
    the own network, and writes a line for each camera that answers within
    1.6 seconds.

gevacq description <camera>
    Writes the description of the camera's registers, as it lies in the camera at
    this address: mostly a zip file, else XML.

gevacq register <camera> <access> [<access>..]
    Reads and writes registers of the camera at this address, in order: an access
    is `<register>` to read it, `<register>=<value>` to write it, 1 to 64 in all.
    Writes a line for each that was read. For writes alone it takes control, and
    gives it away.

gevacq receive <camera> <frames> [<word>..]
    Takes control of the camera at this address, makes it send, and writes a line
    for each image that is handed out; then it stops the camera, gives control
    away, and writes a line of what was counted. Its words, in any order:
      set:<register>=<value>     is written before the stream is opened
      start:<register>=<value>   is written once it's open
      stop:<register>=<value>    is written at the end
      packet=<n>      packet size in bytes, 576 to 9000, else 1500
      buffers=<n>     how many buffers, 1 to 15, else 8
      bytes=<n>       bytes of each, 1 to 67108864, else those of the first image
      mode=<n>        0 to 2, else 0: what gives way where buffers are few: with 1
                      the oldest image that waits, with 2 all that wait, else none
      window=<n>      open blocks at once, 1 to 4, else 4
      timeout=<ms>    1 to 60000, else 200: a block of which nothing came for so
                      long is given up
      age=<ms>        1 to 60000, else 10: missing packets are asked for after so long
      rounds=<n>      how often they are, 0 to 8, else 3
      silence=<ms>    1 to 3600000, else 5000: ends where nothing came for so long
      as=pictures     pictures in place of all lines; as=counts the last line alone;
                      else as=lines
      until=stdin     ends where standard input has ended too, else until=frames
      progress=<ms>   100 to 60000: how it goes, on standard error, else 0 for no
                      such lines
    At most 64 registers are written, none that the program writes itself.

With a capture of a network:

gevacq streams
    Lists the image streams in a capture: reads a pcap or pcapng file from standard
    input and writes a line for each stream.

gevacq capture <port> <p> <bytes>
    Makes a replay script of the datagrams to this port in a capture, which it reads
    in the same way: payloads of at most <p> bytes, and buffers of so many bytes.

With a script:

gevacq replay
    Runs a script of buffer calls, datagrams and moments: reads it from standard
    input and writes its report, line by line, to standard output.

gevacq explain
    Runs the same script, and writes before the report of each line what it tells
    of lost frames and of datagrams that are in no image: why each incomplete
    image is as it is, in lines that begin with `# `.

gevacq image <k|all>
    Runs the same script up to the k-th buffer that its `take` lines get, and
    writes a picture of that one in place of the report: a PGM or PPM file. With
    `all` it writes the pictures of all of them that have one, one after the
    other.

gevacq camera
    Runs a script of control messages on a simulated camera: reads it from
    standard input and writes what the camera answers and sends.

To try it without a camera:

gevacq simulate <address> [<word>..]
    Simulates a camera at this address of the machine: it obeys each command when
    it comes, sends an image a turn while its stream is open, and writes at last
    how many images and turns there were. Its words, in any order: seed=<seed> of
    the images, else 1; rate=<n>, 1 to 1000 turns a second, else 20; turns=<n>, 1
    to 4294967295, else the most; until=stdin to end where standard input has
    ended, else until=turns.

gevacq make <seed> <frames> <loss> <repeat> <swap>
    Writes a replay script of so many test images behind a network that loses,
    repeats and swaps so many packets of a thousand. Reads nothing.

gevacq soak <seed> <frames> <loss> <repeat> <swap> [short]
    Runs a camera, such a network, a client and a receiver as one machine, and
    writes a line for each buffer that is taken, and at last what was counted.
    Reads nothing. With `short` the image of block b lacks its last b mod 8
    lines.

gevacq live <seed> <frames> <buffers> <lanes> <turns> [<mode>]
    Runs a simulated camera and its host as threads over UDP on 127.0.0.1, and
    writes a line for each of so many images that were handed out, and a last
    line. The host ends after so many turns at most. Reads nothing, and meets no
    camera of a network: `receive` does. With mode 1 a new image for which there
    is no buffer has that of the oldest image that waits, with mode 2 a new image
    drops all that wait; else nothing is dropped.

gevacq record <seed> <frames> <buffers> <turns>
    Runs what `live` runs, with one lane and mode 0, and writes in place of the
    lines a replay script of what the host heard: replayed, it takes the images
    that the run filled. It records no camera of a network: a capture does, which
    `capture` makes such a script of.

The program itself:

gevacq --help, gevacq -h, gevacq help
    Prints this text; behind a command, as in `gevacq capture --help`, its part
    with an example.

gevacq --version, gevacq -V
    Prints the name and the version.

<k|all>                     1 to 4294967295, or all
<port>                      1 to 65535
<p>                         528 to 8964
<bytes>                     1 to 67108864
<seed>                      0 to 18446744073709551615
<frames>                    0 to 100000, of `live` and `record` 1 to 1000
<frames> of `receive`       1 to 4294967295
<loss>, <repeat>, <swap>    0 to 1000, of a thousand packets
<buffers>                   1 to 15
<lanes>                     1 to 4
<turns>                     1 to 100000000, of `record` 1 to 100000
<mode>                      0 to 2, and 0 where it isn't given
<address>, <camera>         four numbers of 0 to 255, joined by dots
<register>                  a multiple of 4, 0 to 4294967292
<value>                     0 to 4294967295

Numbers are decimal, without a sign and without a leading zero; registers and
values may be hexadecimal too, as 0x0124. The lines of scripts and reports, the
wire formats and the exit statuses are described in docs/FORMATS.md.
";

/// A line for each command line, printed behind the text of words that weren't understood.
pub(crate) const USAGE: &str = "\
usage: gevacq replay
usage: gevacq explain
usage: gevacq image <k|all>
usage: gevacq streams
usage: gevacq capture <port> <p> <bytes>
usage: gevacq camera
usage: gevacq make <seed> <frames> <loss> <repeat> <swap>
usage: gevacq soak <seed> <frames> <loss> <repeat> <swap> [short]
usage: gevacq live <seed> <frames> <buffers> <lanes> <turns> [<mode>]
usage: gevacq record <seed> <frames> <buffers> <turns>
usage: gevacq discover [<address>]
usage: gevacq description <camera>
usage: gevacq receive <camera> <frames> [<word>..]
usage: gevacq simulate <address> [<word>..]
usage: gevacq register <camera> <access> [<access>..]
";

/// An example of each command.
const EXAMPLES: [(&str, &str); 15] = [
    ("replay", "./gevacq replay < examples/one_block.script"),
    (
        "explain",
        "./gevacq explain < examples/one_block.script | grep '^# '",
    ),
    ("image", "./gevacq image 1 < lossy.script > image.pgm"),
    ("streams", "./gevacq streams < examples/aravis_lossy.pcap"),
    (
        "capture",
        "./gevacq capture 32852 1364 19200 < examples/aravis_lossy.pcap > lossy.script",
    ),
    (
        "camera",
        "./gevacq camera < cases/camera_sends_a_frame/stdin",
    ),
    ("make", "./gevacq make 1 3 100 50 20 | ./gevacq replay"),
    ("soak", "./gevacq soak 7 200 50 20 30 | grep complete=0"),
    ("live", "./gevacq live 1 20 4 1 1000000"),
    ("record", "./gevacq record 1 10 4 100000 > run.script"),
    ("discover", "./gevacq discover"),
    (
        "description",
        "./gevacq description 192.168.10.7 > camera.zip",
    ),
    (
        "receive",
        "./gevacq receive 192.168.10.7 100 start:0x0124=1 stop:0x0124=0",
    ),
    ("simulate", "./gevacq simulate 127.0.0.1"),
    (
        "register",
        "./gevacq register 192.168.10.7 0x0904 0x0120=5000",
    ),
];

/// An example of this command, if there is such a command.
fn example_of(command: &str) -> Option<&'static str> {
    for (name, example) in EXAMPLES {
        if name == command {
            return Some(example);
        }
    }
    None
}

/// The part of the help on this command, whose second word it is.
fn part_on(command: &str) -> &'static str {
    for part in HELP.split("\n\n") {
        if part.split_whitespace().nth(1) == Some(command) {
            return part;
        }
    }
    HELP
}

/// Whether a line of the help tells the range of a word that this part names.
fn is_range_of(line: &str, part: &str) -> bool {
    for word in line.split_whitespace() {
        if word.starts_with('<') && part.contains(word.trim_end_matches(',')) {
            return true;
        }
    }
    false
}

/// Prints the help on this command: its part, the ranges of its words and an example. None where there is no
/// such command.
pub(crate) fn print_help_on(rt: &HostRuntime, command: &str) -> Option<io::Result<()>> {
    let example = example_of(command)?;
    Some(print_part(rt, part_on(command), example))
}

/// Prints a part of the help, the ranges of the words that it names, and an example.
fn print_part(rt: &HostRuntime, part: &str, example: &str) -> io::Result<()> {
    println!(rt; "{part}")?;
    let mut has_ranges = false;
    for line in HELP.lines() {
        if line.starts_with('<') && is_range_of(line, part) {
            if !has_ranges {
                println!(rt; "")?;
            }
            has_ranges = true;
            println!(rt; "{line}")?;
        }
    }
    println!(rt; "\nExample:\n    {example}")
}
