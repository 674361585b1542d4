// The commands `help` and `--version`.
pub const VERSION: &str = "yatesorrel 0.1.0";

pub const HELP: &str = "yatesorrel checks a logger's reading round before it goes under grout.

  yatesorrel              a guided task on a built-in round
  yatesorrel list ROUND [--prices FILE]
                          lists an image with what each slot costs, and says
                          whether it is lawful
  yatesorrel certify ROUND BUDGET [--prices FILE]
                          says whether every stretch fits one charge of BUDGET
  yatesorrel place ROUND BUDGET OUT [--prices FILE]
                          turns idle slots into saves so that every stretch
                          fits, and writes the image to OUT
  yatesorrel headroom ROUND [SUPPLY] [--prices FILE]
                          says the least budget, and how far a capacitor may age
  yatesorrel run ROUND TAPE SUPPLY [--prices FILE] [--cut N]... [--steps N]
                          runs an image over a tape on a supply for N steps
                          (1000000), with a cut once N steps were asked
  yatesorrel report ROUND TAPE SUPPLY OUT [--prices FILE] [--cut N]... [--steps N]
                          runs it so, and writes a page of HTML to OUT
  yatesorrel help         prints this
  yatesorrel --version    prints the version

ROUND is a file of raw slots, as llvm-objcopy -O binary --only-section=.text
leaves them of an object that clang -target bpf made. TAPE is text, a reading
a line. SUPPLY is mains, or capacitor:C,TOP,BOTTOM,UNIT: microfarads, two
voltages in millivolts, and the energy of a unit of charge in picojoules. FILE
has a price a line, as 0x85 12, for each of the 256 opcode bytes, and save 20
for a saving; without it the operand model says the prices.
A refusal, a bad file and a bad command end with status 1.";
